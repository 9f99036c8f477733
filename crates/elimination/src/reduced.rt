// A matrix in the course of elimination. A row that is the pivot of a position has that position as its role; any other has the role 16.
// A role stays a byte: `free` and the laws of elimination speak of roles of any number.
#[derive(Clone, Copy)]
pub struct Reduced {
    pub rows: [[u8; 16]; 16],
    pub roles: [u8; 16],
}

// The code: the settings; specs/ has the spread form, the generator matrix and its words.
#![tactic(auto)]

mod settings;

pub use settings::Settings;

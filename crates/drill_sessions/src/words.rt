//! The words of a script.

/// What a line of a script says.
#[derive(Clone, Copy)]
pub enum Plan {
    Same,
    Unreached,
    Boots,
    Choices,
    Faults,
    Armed,
}

/// The words, each before what it says.
static NAMED: [(&str, Plan); 6] = [
    ("same", Plan::Same),
    ("unreached", Plan::Unreached),
    ("boots", Plan::Boots),
    ("choices", Plan::Choices),
    ("faults", Plan::Faults),
    ("armed", Plan::Armed),
];

impl Plan {
    /// What a word says, if it is one of a script.
    pub fn named(name: &str) -> Option<Plan> {
        for (written, plan) in NAMED.iter() {
            if *written == name {
                return Some(*plan);
            }
        }
        None
    }
}

// The plain data of the settings store (document 02, W8). What it means is in specs/, and no laws.
#![tactic(auto)]

ghost use Rattle.std.specs.Prelude.{◌≡◌};
ghost use Rattle.model_settings.specs.Store.{number};

// What a planner sets: the bits of the chance, the horizon, the recipe.
#[derive(Clone, Copy)]
pub struct Content {
    pub chance: u64,
    pub horizon: u64,
    pub recipe: u64,
}

// A version and its content.
#[derive(Clone, Copy)]
pub struct Settled {
    pub version: u64,
    pub content: Content,
}

// Why a call was refused.
#[derive(Clone, Copy, PartialEq, Eq)]
pub enum Unsettled {
    // There is no such department.
    NoDepartment,
    // The content may not be kept.
    OutOfRange,
    // The call did not start from the current version.
    Stale,
    // The version is not one of the last eight.
    NotKept,
    // The current version is the last that has a number.
    LastVersion,
    // The words are no store's.
    NoStore,
}

impl Unsettled {
    // Document 02's number of a refusal.
    pub fn number(self) -> u8
        ensures { result ≡ number self }
    {
        match self {
            Unsettled::NoDepartment => 3,
            Unsettled::OutOfRange => 4,
            Unsettled::Stale => 13,
            Unsettled::NotKept => 14,
            Unsettled::LastVersion => 15,
            Unsettled::NoStore => 18,
        }
    }
}

// A version was read or made, or the call was refused.
pub type Answer = Result<Settled, Unsettled>;

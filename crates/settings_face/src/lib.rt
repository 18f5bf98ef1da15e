// Answers of the settings store for C, Rust and Python: a word, and what is written through pointers. The names
// themselves are in crate `taylor`: the archive has the functions of one crate only.
#![tactic(auto)]

ghost use Rattle.std.specs.Prelude.{◌≡◌};
ghost use Rattle.settings_face.specs.Face.{handed_over, numbered, word_of, version_after, horizon_after, recipe_after};
ghost use Rattle.settings_face.specs.Face.{chance_after};

use model_settings::{Answer, Content, Settled};

// What is handed over, the chance as its bits.
pub fn content_of(chance: f64, horizon: u64, recipe: u64) -> Content
    ensures { result ≡ handed_over chance horizon recipe }
{
    Content {
        chance: sheet_bits::word_of(chance),
        horizon,
        recipe,
    }
}

// A refusal by its number: what the functions below take.
pub fn numbered(a: Answer) -> Result<Settled, u8>
    ensures { result ≡ numbered a }
{
    match a {
        Ok(s) => Ok(s),
        Err(why) => Err(why.number()),
    }
}

// 0, or the refusal as one word.
pub fn word_of(a: Result<Settled, u8>) -> u64
    ensures { result ≡ word_of a }
{
    match a {
        Ok(_) => 0,
        Err(n) => n as u64 + 16384,
    }
}

// The version through its pointer; a refusal writes nothing.
pub fn put_version(a: Result<Settled, u8>, version: &mut u64)
    ensures { version.new ≡ version_after a version.old }
{
    if let Ok(s) = a {
        *version = s.version;
    }
}

// The chance, as the float of its bits.
pub fn put_chance(a: Result<Settled, u8>, chance: &mut f64)
    ensures { chance.new ≡ chance_after a chance.old }
{
    if let Ok(s) = a {
        *chance = sheet_bits::float_of(s.content.chance);
    }
}

// The horizon.
pub fn put_horizon(a: Result<Settled, u8>, horizon: &mut u64)
    ensures { horizon.new ≡ horizon_after a horizon.old }
{
    if let Ok(s) = a {
        *horizon = s.content.horizon;
    }
}

// The recipe's number.
pub fn put_recipe(a: Result<Settled, u8>, recipe: &mut u64)
    ensures { recipe.new ≡ recipe_after a recipe.old }
{
    if let Ok(s) = a {
        *recipe = s.content.recipe;
    }
}

// Standard output, and the arguments. What an argument says is `settings_command`'s; which text it is no contract can
// say.
ghost use Rattle.settings_command.specs.Argument.{whole_of, chance_of};
ghost use Rattle.settings.specs.Given.{Given, CallGiven, HeardGiven};

use model_settings::Content;
use replay_input::{argument, argument_count};
use settings_command::argument::{call_of, chance_of, whole_of};
use settings_command::asked::{Asked, Call};
use std::env::Env;

// Where nothing can be printed the steps go on: what is made of FILE does not hang on who listens.
pub fn say(rt: &impl Print, text: &[u8]) {
    let _ = rt.write_all(text);
}

// Argument i as a whole number.
fn given(rt: &impl Env, i: usize) -> Option<u64>
    ensures { Given whole_of result }
{
    let mut text = [0u8; 64];
    let n = argument(rt, i, &mut text);
    whole_of(&text[..n])
}

// Argument i as the word of a chance.
fn given_chance(rt: &impl Env, i: usize) -> Option<u64>
    ensures { Given chance_of result }
{
    let mut text = [0u8; 64];
    let n = argument(rt, i, &mut text);
    chance_of(&text[..n])
}

// Which call argument 2 names, with as many arguments as it takes.
pub fn call_given(rt: &impl Env) -> Option<Call>
    ensures { CallGiven result }
{
    let mut name = [0u8; 64];
    let n = argument(rt, 2, &mut name);
    call_of(&name[..n], argument_count(rt))
}

// What the arguments ask of a call, where each one that it has says a number.
pub fn asked_of(rt: &impl Env, call: Call) -> Option<Asked>
    ensures { HeardGiven call result }
{
    match call {
        Call::Fresh => Some(Asked::Fresh),
        Call::Departments => Some(Asked::Departments),
        Call::Versions => {
            let department = given(rt, 3)?;
            Some(Asked::Versions { department })
        }
        Call::Save => {
            let department = given(rt, 3)?;
            let from = given(rt, 4)?;
            let chance = given_chance(rt, 5)?;
            let horizon = given(rt, 6)?;
            let recipe = given(rt, 7)?;
            Some(Asked::Save {
                department,
                from,
                content: Content {
                    chance,
                    horizon,
                    recipe,
                },
            })
        }
        Call::Back => {
            let department = given(rt, 3)?;
            let from = given(rt, 4)?;
            let kept = given(rt, 5)?;
            Some(Asked::Back {
                department,
                from,
                kept,
            })
        }
    }
}

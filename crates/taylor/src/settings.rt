// The settings store under its C names: 0 with what was asked for through pointers, or a refusal's number + 256 * 64
// and nothing written.
ghost use Rattle.taylor.specs.Promises.{SettingsFreshPromise, SettingsReadPromise, SettingsReadVersionPromise, SettingsSavePromise};
ghost use Rattle.taylor.specs.Promises.{SettingsBringBackPromise};

use settings_face::{
    content_of, numbered, put_chance, put_horizon, put_recipe, put_version, word_of,
};

// A fresh store in the first 544 words: refusal 18.
#[unsafe(no_mangle)]
pub extern "C" fn settings_fresh(words: &mut [u64]) -> u64
    ensures { SettingsFreshPromise words.old result words.new }
{
    word_of(numbered(settings_store::fresh(words)))
}

// The current version and its content: refusals 18, 3.
#[unsafe(no_mangle)]
pub extern "C" fn settings_read(
    words: &[u64],
    department: u64,
    version: &mut u64,
    chance: &mut f64,
    horizon: &mut u64,
    recipe: &mut u64,
) -> u64
    ensures { SettingsReadPromise words.now department version.old chance.old
        horizon.old recipe.old result version.new chance.new
        horizon.new recipe.new }
{
    let a = numbered(settings_store::read(words, department));
    put_version(a, version);
    put_chance(a, chance);
    put_horizon(a, horizon);
    put_recipe(a, recipe);
    word_of(a)
}

// The content of a kept version: refusals 18, 3, 14.
#[unsafe(no_mangle)]
pub extern "C" fn settings_read_version(
    words: &[u64],
    department: u64,
    version: u64,
    chance: &mut f64,
    horizon: &mut u64,
    recipe: &mut u64,
) -> u64
    ensures { SettingsReadVersionPromise words.now department version chance.old
        horizon.old recipe.old result chance.new horizon.new
        recipe.new }
{
    let a = numbered(settings_store::read_version(words, department, version));
    put_chance(a, chance);
    put_horizon(a, horizon);
    put_recipe(a, recipe);
    word_of(a)
}

// A new version from the one that the planner started from: refusals 18, 3, 4, 13, 15.
#[unsafe(no_mangle)]
pub extern "C" fn settings_save(
    words: &mut [u64],
    department: u64,
    from: u64,
    chance: f64,
    horizon: u64,
    recipe: u64,
    version: &mut u64,
) -> u64
    ensures { SettingsSavePromise words.old department from chance horizon recipe
        version.old result words.new version.new }
{
    let content = content_of(chance, horizon, recipe);
    let a = numbered(settings_store::save(words, department, from, content));
    put_version(a, version);
    word_of(a)
}

// A kept version as a new one: refusals 18, 3, 13, 14, 15.
#[unsafe(no_mangle)]
pub extern "C" fn settings_bring_back(
    words: &mut [u64],
    department: u64,
    from: u64,
    kept: u64,
    version: &mut u64,
) -> u64
    ensures { SettingsBringBackPromise words.old department from kept version.old result
        words.new version.new }
{
    let a = numbered(settings_store::bring_back(words, department, from, kept));
    put_version(a, version);
    word_of(a)
}

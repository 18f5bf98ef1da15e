// The numbers of a stored case, from its lines.
ghost use Rattle.std.specs.Prelude.{◌≡◌, ◌<◌};
ghost use Rattle.replay_entries.specs.Text.{number_at, numbers_of};

use sheet_text::line::word_at;

// The number k of n, 0 where a case has fewer.
fn number_at(text: &[u8], n: usize, k: usize) -> u64
    requires { k < 7 }
    ensures { result ≡ number_at text.now n k }
{
    if k < n { word_at(text, 17 * k) } else { 0 }
}

// The numbers, of which there are n.
pub fn numbers_of(text: &[u8], n: usize) -> [u64; 7]
    ensures { result ≡ numbers_of text.now n }
{
    [
        number_at(text, n, 0),
        number_at(text, n, 1),
        number_at(text, n, 2),
        number_at(text, n, 3),
        number_at(text, n, 4),
        number_at(text, n, 5),
        number_at(text, n, 6),
    ]
}

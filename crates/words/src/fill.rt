// How many words a line takes.
ghost use Rattle.std.specs.Prelude.{◌≡◌, ◌≤◌, map, length};
ghost use Rattle.float.specs.Numbers.{plus_zero};
ghost use Rattle.words.specs.Lines.{first_fits};
ghost use Rattle.words.specs.Laid.{taken};

use crate::beside::Span;
use float::number::plus_zero;

// On a line that touches no band the first word fits in any case.
fn first_fits(e: Span, room: f32, word: f32) -> bool
    ensures { result ≡ first_fits e room word }
{
    !e.beside | (word <= room)
}

// Of the words that are left, the first ones that the line takes: none where not even the first fits.
pub(crate) fn take_words(rest: &[f32], e: Span, room: f32, gap: f32) -> usize
    ensures count { result ≡ taken e room gap (map plus_zero rest.now) }
    ensures few { result ≤ length rest.now }
{
    let [first, others @ ..] = rest else {
        return 0;
    };
    let mut sum = plus_zero(*first);
    if !first_fits(e, room, sum) {
        return 0;
    }
    for (i, word) in others.iter().enumerate() {
        let wider = sum + gap + plus_zero(*word);
        if !(wider <= room) {
            return i + 1;
        }
        sum = wider;
    }
    rest.len()
}

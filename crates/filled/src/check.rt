// Whether a page is a filled page: what page capacity and write second ask before they work on it.
ghost use Rattle.std.specs.Prelude.{◌≡◌, ◌*◌, ◌^◌, ◌≤◌, ◌<◌};
ghost use Rattle.answer.specs.Answer.{answer, answer_of};
ghost use Rattle.window.specs.Words.{start};
ghost use Rattle.filled.specs.Answer.{filled_checks, room_filled};

use answer::Refusal;
use page::check::check_header;
use rows::STATE_FILLED;
use rows::filling::count_filled;
use rows::shape::Shape;

// The tests in document 02's order, of a page by a shape; where none refuses, the page's capacity.
#[inline(always)]
pub fn check_filled(page: &[u8], s: Shape) -> Result<u32, Refusal>
    requires { (start s.words ≤ 8 * s.size) × (s.size < 2 ^ 16) }
    ensures { answer_of result ≡ answer (filled_checks s page.now) (room_filled s page.now) }
{
    check_header(page, s, STATE_FILLED, 0)?;
    let found = count_filled(page, s.words);
    if found.words < s.words {
        return Err(Refusal::Word(found.words as u32));
    }
    Ok(found.cells as u32)
}

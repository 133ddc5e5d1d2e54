// The kind of a piece of input, by its state and by what the page's readers answer.
ghost use Rattle.std.specs.Prelude.{◌≡◌, MatchResult};
ghost use Rattle.answer.specs.Answer.{refusal_number};
ghost use Rattle.report.specs.Kinds.{kind_of};
ghost use Rattle.report.specs.declared.Kind.TheVariants.{Bad};

use crate::Kind;
use answer::Refusal;
use rows::{STATE_FILLED, STATE_FIRST, STATE_INSPECT, STATE_SECOND};

// The kind of a piece that is not bad, or the refusal by which it is. A record is read into a buffer that every record fits, and let go. Page
// capacity is called at one place, so that the compiler leaves the counting out where the number is not used, as in a gain sheet.
#[tactic(auto, using(crate::proofs::Deciding::by_state), unfolding(rows::specs::Page::blank_of))]
fn good_kind(piece: &[u8]) -> Result<Kind, Refusal>
    ensures { MatchResult result (λ kind. kind_of piece.now ≡ kind) (λ e. kind_of piece.now ≡ Bad (refusal_number e)) }
{
    if piece.len() != 256 {
        return Err(Refusal::PageLength);
    }
    match piece[0] {
        0 if page::is_blank(piece) => Ok(Kind::Blank),
        0 => Err(Refusal::NotBlank),
        STATE_FIRST | STATE_FILLED => {
            let room = filled::capacity(piece)?;
            if piece[0] == STATE_FILLED {
                Ok(Kind::Filled(room))
            } else {
                Ok(Kind::First(room))
            }
        }
        STATE_SECOND => second::read_second(piece, &mut [0; 126]).map(Kind::Second),
        STATE_INSPECT => inspect::read_inspect(piece, &mut [0; 247]).map(Kind::Second),
        _ => Err(Refusal::State),
    }
}

// The kind of a piece of any length.
pub fn kind_of(piece: &[u8]) -> Kind
    ensures { result ≡ kind_of piece.now }
{
    good_kind(piece).unwrap_or_else(|e| Kind::Bad(u32::from(e.number())))
}

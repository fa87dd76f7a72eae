ghost use Rattle.mbj_text.specs.Inside.Reading.{Gives, session_of};

use crate::fault::LineFault;
use crate::fields::Fields;
use crate::split::Split;
use mbj_types::Bytes;
use std::alloc::Global;

/// How many fields a session line has.
const FIELDS: usize = 2;

/// The key that a session line spells, or the field that is the line's fault.
#[tactic(auto, using(crate::proofs::Cutting::cut_bound), unfolding(crate::specs::Inside::Reading::session_of))]
pub(crate) fn read_session(alloc: Global, line: &[u8]) -> Result<Bytes, LineFault>
    ensures { Gives result (session_of line.now) }
{
    if Split::new(line, b' ').count() != FIELDS {
        return Err(LineFault::Field(0));
    }
    let mut fields = Fields::of(alloc, line);
    let _word = fields.next_text()?;
    fields.read_key()
}

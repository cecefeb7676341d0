//! Streams of characters.

ghost use Rattle.std.specs.Prelude.{IfOk, IsTrue};
ghost use Rattle.wac_wit_refusals_sites.specs.Judging.{Judges};
ghost use Rattle.wac_wit_refusals_types.specs.CharStreams.{IsCharStream};
ghost use Rattle.wac_wit_scopes.specs.WitSources.{WitSources};

use super::carried::has_carrier;
use super::wanted::Wanted;
use std::alloc::AllocError;
use wac_wit_refusals_sites::Judge;
use wac_wit_syntax::Span;

/// Whether a stream has characters.
pub fn is_char_stream(judge: &Judge<'_>, file: usize, span: Span) -> Result<bool, AllocError>
    ensures { IfOk result (λ is. IsTrue is → (of : WitSources) → Judges of judge.now → IsCharStream of file span) }
{
    for placed in &judge.bodies_in(file)? {
        if has_carrier(judge, placed, span, Wanted::Char)? {
            return Ok(true);
        }
    }
    Ok(false)
}

// The parts of the lent memory that questions for bodies name.
ghost use Rattle.std.specs.Prelude.{◌≡◌};
ghost use Rattle.rules.specs.Places.{clipped};
ghost use Rattle.reader.specs.Runs.{target_of};

use crate::calls::Call;
use rules::meaning::Place;

// As much of a place as there is in so many bytes.
pub fn clip(place: Place, len: usize) -> Place
    ensures { result ≡ clipped place len }
{
    place.within(len)
}

// The target of a call; none where it is no question.
pub fn target_of<'a>(call: &Call, targets: &'a [u8]) -> &'a [u8]
    ensures { result.now ≡ target_of call.now targets.now }
{
    match call {
        Call::Ask { target, .. } => target.of(targets),
        _ => &[],
    }
}

// How much of a sheet has to be read: of an endless input a reader takes only a front.
ghost use Rattle.std.specs.Prelude.{◌≡◌, ◌+◌, ◌*◌};
ghost use Rattle.sheets.specs.Fronts.{FrontDecides};

use weights::kind::OrderedWeight;

// How many bytes of a sheet of the kind W decide its reading: the kind record, the longest calendar record and 257 job records.
// A front of that length is never accepted, and its fault is the fault of each sheet that begins with it.
pub fn deciding_front<W: OrderedWeight>() -> usize
    ensures value { result ≡ 1031 + 257 * (9 + W.OrderedWeight.WIDTH) }
    ensures decides { FrontDecides W.OrderedWeight.CODE W.OrderedWeight.WIDTH W.OrderedWeight.encoding result }
{
    1031 + 257 * (9 + W::WIDTH)
}

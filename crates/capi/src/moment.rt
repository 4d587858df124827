// The moment at which a dump is looked at, as C has it: before a page, or a page that none is for the dump as it stands.
ghost use Rattle.std.specs.Prelude.{◌≡◌};
ghost use Rattle.capi.specs.Moments.{moment_at};

use chunk::moment::Moment;
use page::number::PageNumber;

// The page of no moment: the dump as it stands.
const NOW: u32 = 0xFFFF_FFFF;

// The moment before a page.
pub(crate) fn moment_at(before: u32) -> Moment
    ensures { result ≡ moment_at before }
{
    if before == NOW {
        Moment::Now
    } else {
        Moment::Before(PageNumber(before))
    }
}

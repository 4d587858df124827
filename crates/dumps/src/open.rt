// An open dump: its bytes, and how they are read.
ghost use Rattle.std.specs.Prelude.{◌≡◌};

use page::geometry::Geometry;

#[derive(Clone, Copy)]
pub struct OpenDump<'a> {
    pub bytes: &'a [u8],
    pub geometry: Geometry,
}

// The bytes and their geometry, together.
pub fn open<'a>(bytes: &'a [u8], geometry: Geometry) -> OpenDump<'a>
    ensures { (result.bytes ≡ bytes.entry) × (result.geometry ≡ geometry) }
{
    OpenDump { bytes, geometry }
}

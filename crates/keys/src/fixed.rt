ghost use Rattle.keys.specs.Bands.{fixed_ranged, as_declared, more_urgent, band_code};
ghost use Rattle.std.specs.Prelude.{refl};
ghost use Rattle.std.proofs.Common.{rules};

use crate::kind::KeyKind;

// A band, 0 for urgent, 1 for normal or 2 for background, with a level from 0 to 255 in it.
// Numbers, since whatever a caller or a file hands over must reach the range test: an
// enum would ask more of callers.
#[derive(Clone, Copy, Debug, PartialEq, Eq)]
pub struct BandLevel {
    pub band: u32,
    pub level: u32,
}

// The fixed kind declares a band and a level, which are the key at every tick.
// Lower bands go first, and lower levels within a band; each band has 256 codes.
#[derive(Clone, Copy, Debug, PartialEq, Eq)]
pub struct Fixed;

impl KeyKind for Fixed {
    type Declared = BandLevel;

    type Key = BandLevel;

    ghost ranged = { fixed_ranged };

    ghost key = { as_declared };

    ghost ahead = { more_urgent };

    ghost code = { band_code };

    ghost some = { (record { band = 0; level = 0 }, refl) };

    ghost bounded = { Prim.search rules };

    ghost smaller = { Prim.search rules };

    ghost earlier = { Prim.search rules };

    fn code_at(declared: BandLevel, _arrival: u32) -> Option<u64> {
        if declared.band > 2 || declared.level > 255 {
            return None;
        }
        Some(u64::from(declared.band) * 256 + u64::from(declared.level))
    }
}

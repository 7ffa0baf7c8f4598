// The classes of a classed weight.
ghost use Rattle.std.specs.Prelude.{◌≡◌};
ghost use Rattle.kinds.specs.ClassLevels.{class_level, OfLevel};

use weights::fault::WeightFault;

// QM is the lightest class, D the heaviest.
#[derive(Clone, Copy, Debug, PartialEq, Eq, PartialOrd, Ord)]
pub enum Class {
    Qm,
    A,
    B,
    C,
    D,
}

impl Class {
    // 0 for QM to 4 for D.
    pub fn level(&self) -> u8
        ensures { result ≡ class_level self.now }
    {
        *self as u8
    }
}

// The class with a level; refused exactly where the level is above 4.
impl TryFrom<u8> for Class {
    type Error = WeightFault;

    ghost try_from_gives = { OfLevel };

    fn try_from(level: u8) -> Result<Class, WeightFault> {
        match level {
            0 => Ok(Class::Qm),
            1 => Ok(Class::A),
            2 => Ok(Class::B),
            3 => Ok(Class::C),
            4 => Ok(Class::D),
            _ => Err(WeightFault::NoWeight),
        }
    }
}

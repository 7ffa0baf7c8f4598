// Weights and totals as text: points as a number, classed as the class, a colon and the points, a share as a fraction.
ghost use Rattle.std.specs.Prelude.{◌≡◌, Some, decimal};
ghost use Rattle.kinds.specs.Printed.{class_name, points_text, classed_text, share_text, sums_text};

use crate::class::Class;
use crate::classed::{Classed, ClassedTotal};
use crate::points::{Points, PointsTotal};
use crate::share::Share;
use std::fmt;
use std::fmt::{Display, Formatter, Write};

impl Class {
    // Its name: always there, where to print it may fail.
    pub fn name(&self) -> &'static str
        ensures { result.now ≡ class_name self.now }
    {
        match self {
            Class::Qm => "QM",
            Class::A => "A",
            Class::B => "B",
            Class::C => "C",
            Class::D => "D",
        }
    }
}

impl Display for Class {
    ghost output = { λ c. Some (class_name c) };

    fn fmt<F: Write>(&self, f: &mut Formatter<F>) -> fmt::Result {
        f.write_str(self.name())
    }
}

impl Display for Points {
    ghost output = { λ w. Some (points_text w) };

    fn fmt<F: Write>(&self, f: &mut Formatter<F>) -> fmt::Result {
        let count = self.count();
        write!(f, "{count}")
    }
}

impl Display for Classed {
    ghost output = { λ w. Some (classed_text w) };

    fn fmt<F: Write>(&self, f: &mut Formatter<F>) -> fmt::Result {
        let class = self.class();
        let points = self.points();
        write!(f, "{class}:{points}")
    }
}

impl Display for Share {
    ghost output = { λ w. Some (share_text w) };

    fn fmt<F: Write>(&self, f: &mut Formatter<F>) -> fmt::Result {
        let part = self.part();
        let whole = self.whole();
        write!(f, "{part}/{whole}")
    }
}

impl Display for PointsTotal {
    ghost output = { λ t. Some (decimal t.sum) };

    fn fmt<F: Write>(&self, f: &mut Formatter<F>) -> fmt::Result {
        let sum = self.sum();
        write!(f, "{sum}")
    }
}

impl Display for ClassedTotal {
    ghost output = { λ t. Some (sums_text t.sums) };

    fn fmt<F: Write>(&self, f: &mut Formatter<F>) -> fmt::Result {
        let [d, c, b, a, qm] = self.sums();
        write!(f, "{d}/{c}/{b}/{a}/{qm}")
    }
}

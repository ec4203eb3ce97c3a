// What a grading says of one sender.
ghost use Rattle.std.specs.Prelude.{◌≡◌};
ghost use Rattle.grading.specs.Grades.{grade_number, grade_value, sure, shown};

use std::fmt;

// Grade 2 or 1 with a value, or grade 0, which has none. Not an `Option` with a flag beside it: grades 2 and 1 say different
// things of one value.
#[derive(Clone, Copy, PartialEq, Eq, Debug)]
pub enum Grade<K> {
    Two(K),
    One(K),
    Zero,
}

impl<K: Copy> Grade<K> {
    // 0, 1 or 2.
    pub fn number(&self) -> u8
        ensures { result ≡ grade_number self.now }
    {
        match self {
            Grade::Two(_) => 2,
            Grade::One(_) => 1,
            Grade::Zero => 0,
        }
    }

    // The value of grades 1 and 2.
    pub fn value(&self) -> Option<K>
        ensures { result ≡ grade_value self.now }
    {
        match self {
            Grade::Two(value) => Some(*value),
            Grade::One(value) => Some(*value),
            Grade::Zero => None,
        }
    }

    // Whether it is grade 2.
    pub(crate) fn is_sure(&self) -> bool
        ensures { result ≡ sure self.now }
    {
        matches!(self, Grade::Two(_))
    }
}

// The number and, where there is one, the value behind a colon.
impl<K: fmt::Display> fmt::Display for Grade<K> {
    ghost output = { shown K.Display.output };

    fn fmt<W: fmt::Write>(&self, f: &mut fmt::Formatter<W>) -> fmt::Result {
        match self {
            Grade::Two(value) => write!(f, "2:{value}"),
            Grade::One(value) => write!(f, "1:{value}"),
            Grade::Zero => f.write_str("0"),
        }
    }
}

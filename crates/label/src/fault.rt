// What a fault tells: its number, the layer that found it, and the byte of the file where its block or record
// starts, 0 where it has none.
ghost use Rattle.std.specs.Prelude.{◌≡◌, Some};
ghost use Rattle.label.specs.Faults.{text_told, layer_name, told_text, text_sentence};
ghost use Rattle.label.specs.declared.fault.Diagnostic.{Diagnostic};

use std::error::Error;
use std::fmt;

// The layer of the library that found a fault.
#[derive(Clone, Copy, PartialEq, Eq, Debug)]
pub enum Layer {
    Block,
    Plan,
    Callout,
}

impl fmt::Display for Layer {
    ghost output = { λ l. Some (layer_name l) };

    fn fmt<W: fmt::Write>(&self, f: &mut fmt::Formatter<W>) -> fmt::Result {
        f.write_str(match self {
            Layer::Block => "block",
            Layer::Plan => "plan",
            Layer::Callout => "callout",
        })
    }
}

// The number is what people call a fault; code tells faults apart by their enums.
#[derive(Clone, Copy, PartialEq, Eq, Debug)]
pub struct Diagnostic {
    pub number: u8,
    pub layer: Layer,
    pub byte: usize,
}

impl fmt::Display for Diagnostic {
    ghost output = { λ d. Some (told_text d) };

    fn fmt<W: fmt::Write>(&self, f: &mut fmt::Formatter<W>) -> fmt::Result {
        write!(f, "fault {} {} {}", self.number, self.layer, self.byte)
    }
}

// What every fault of the library shares: the diagnostic that `told` says, and the sentence that says what is wrong.
pub trait Fault: Error + Copy {
    ghost told: { Self → Diagnostic };

    fn diagnostic(&self) -> Diagnostic
        ensures { result ≡ told self.now };
}

// Typed text that gives no label.
#[derive(Clone, Copy, PartialEq, Eq, Debug)]
pub enum TextFault {
    NoLabel,
}

impl fmt::Display for TextFault {
    ghost output = { λ e. Some (text_sentence e) };

    fn fmt<W: fmt::Write>(&self, f: &mut fmt::Formatter<W>) -> fmt::Result {
        f.write_str(match self {
            TextFault::NoLabel => {
                "The text is not a label: a label has 1 to 8 signs, each a letter from A to Z, a digit or a hyphen"
            }
        })
    }
}

impl Error for TextFault {}

impl Fault for TextFault {
    ghost told = { text_told };

    fn diagnostic(&self) -> Diagnostic {
        match self {
            TextFault::NoLabel => Diagnostic {
                number: 12,
                layer: Layer::Callout,
                byte: 0,
            },
        }
    }
}

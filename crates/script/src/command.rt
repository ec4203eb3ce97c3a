// A line of a script as a command.
use std::num::ParseIntError;
use std::str::FromStr;
use thiserror::Error;

// A kind of value that a slot holds.
#[derive(Clone, Copy)]
pub enum ValueKind {
    Position,
    Label,
}

// A kind of line agreement.
#[derive(Clone, Copy)]
pub enum LineKind {
    Halving,
    Graded,
}

// A line agreement: its kind, its units, how many of them may be faulty, and its span.
#[derive(Clone, Copy)]
pub struct Agreement {
    pub kind: LineKind,
    pub units: usize,
    pub faulty: usize,
    pub span: usize,
}

// An agreement to be played, and the positions of the honest units, a word each.
#[derive(Clone, Copy)]
pub struct Play<'a> {
    pub agreement: Agreement,
    pub positions: &'a str,
}

// What one unit of a line agreement begins with: the agreement, the unit's own number, and its position.
#[derive(Clone, Copy)]
pub struct LineWords {
    pub agreement: Agreement,
    pub own: usize,
    pub position: usize,
}

// A command and its words: names of plans and lines, labels as typed, and bytes in hex; numbers; and the frames of a round, a word
// each.
#[derive(Clone, Copy)]
pub enum Command<'a> {
    Label {
        text: &'a str,
    },
    NewPlan {
        plan: &'a str,
    },
    Read {
        plan: &'a str,
        file: &'a str,
    },
    Walk {
        plan: &'a str,
    },
    Depth {
        plan: &'a str,
        label: &'a str,
    },
    Way {
        plan: &'a str,
        from: &'a str,
        to: &'a str,
    },
    Meet {
        plan: &'a str,
        one: &'a str,
        other: &'a str,
    },
    Grade {
        kind: ValueKind,
        units: usize,
        faulty: usize,
        frames: &'a str,
    },
    NewLine {
        name: &'a str,
        words: LineWords,
    },
    LineFrame {
        name: &'a str,
    },
    LineStep {
        name: &'a str,
        frames: &'a str,
    },
    LineResult {
        name: &'a str,
    },
}

// Why a line is no command.
#[derive(Clone, Copy, PartialEq, Eq, Debug, Error)]
pub enum LineFault {
    #[error("there is no such command")]
    UnknownCommand,
    #[error("words are parted by one blank, and none stands before or behind them")]
    EmptyWord,
    #[error("the command needs more words")]
    TooFewWords,
    #[error("the command has too many words")]
    TooManyWords,
    #[error("a number is not written in digits, or is too large")]
    NoNumber,
    #[error("there is no such kind of value")]
    UnknownKind,
    #[error("there is no such line agreement")]
    UnknownLine,
}

impl From<ParseIntError> for LineFault {
    fn from(_e: ParseIntError) -> LineFault {
        LineFault::NoNumber
    }
}

// The two kinds share no words and no fault, so each has its own short table.
impl FromStr for ValueKind {
    type Err = LineFault;

    fn from_str(word: &str) -> Result<ValueKind, LineFault> {
        match word {
            "position" => Ok(ValueKind::Position),
            "label" => Ok(ValueKind::Label),
            _ => Err(LineFault::UnknownKind),
        }
    }
}

impl FromStr for LineKind {
    type Err = LineFault;

    fn from_str(word: &str) -> Result<LineKind, LineFault> {
        match word {
            "halving" => Ok(LineKind::Halving),
            "graded" => Ok(LineKind::Graded),
            _ => Err(LineFault::UnknownLine),
        }
    }
}

// What is left of a line, of which words are taken from the front; nothing behind its last word.
#[derive(Drop)]
struct Words<'a>(Option<&'a str>);

impl<'a> Words<'a> {
    // The next word, up to a blank or the end of the line.
    fn word(&mut self) -> Result<&'a str, LineFault> {
        let text = self.rest()?;
        let (word, rest) = match text.split_once(' ') {
            Some((word, rest)) => (word, Some(rest)),
            None => (text, None),
        };
        if word.is_empty() {
            return Err(LineFault::EmptyWord);
        }
        self.0 = rest;
        Ok(word)
    }

    // The next word, behind which the line ends.
    fn last(&mut self) -> Result<&'a str, LineFault> {
        let word = self.word()?;
        match self.0 {
            Some(_) => Err(LineFault::TooManyWords),
            None => Ok(word),
        }
    }

    // The number that the next word writes.
    fn number(&mut self) -> Result<usize, LineFault> {
        Ok(self.word()?.parse()?)
    }

    // All words that are left.
    fn rest(&self) -> Result<&'a str, LineFault> {
        self.0.ok_or(LineFault::TooFewWords)
    }
}

// The agreement that stands in a text.
pub fn parse_play(text: &str) -> Result<Play<'_>, LineFault> {
    let mut words = Words(Some(text));
    let agreement = Agreement {
        kind: words.word()?.parse()?,
        units: words.number()?,
        faulty: words.number()?,
        span: words.number()?,
    };
    let positions = words.rest()?;
    Ok(Play {
        agreement,
        positions,
    })
}

// The command that stands in a line.
pub fn parse(line: &str) -> Result<Command<'_>, LineFault> {
    let mut words = Words(Some(line));
    Ok(match words.word()? {
        "label" => Command::Label {
            text: words.last()?,
        },
        "newplan" => Command::NewPlan {
            plan: words.last()?,
        },
        "read" => Command::Read {
            plan: words.word()?,
            file: words.last()?,
        },
        "walk" => Command::Walk {
            plan: words.last()?,
        },
        "depth" => Command::Depth {
            plan: words.word()?,
            label: words.last()?,
        },
        "way" => Command::Way {
            plan: words.word()?,
            from: words.word()?,
            to: words.last()?,
        },
        "meet" => Command::Meet {
            plan: words.word()?,
            one: words.word()?,
            other: words.last()?,
        },
        "grade" => return grade_command(words),
        "newline" => return line_command(words),
        "lineframe" => Command::LineFrame {
            name: words.last()?,
        },
        "linestep" => Command::LineStep {
            name: words.word()?,
            frames: words.rest()?,
        },
        "lineresult" => Command::LineResult {
            name: words.last()?,
        },
        _ => return Err(LineFault::UnknownCommand),
    })
}

// All words are taken before the first of them is read as a kind or a number.
fn grade_command(mut words: Words<'_>) -> Result<Command<'_>, LineFault> {
    let kind = words.word()?;
    let units = words.word()?;
    let faulty = words.word()?;
    let frames = words.rest()?;
    Ok(Command::Grade {
        kind: kind.parse()?,
        units: units.parse()?,
        faulty: faulty.parse()?,
        frames,
    })
}

fn line_command(mut words: Words<'_>) -> Result<Command<'_>, LineFault> {
    let name = words.word()?;
    let kind = words.word()?.parse()?;
    let units = words.number()?;
    let faulty = words.number()?;
    let own = words.number()?;
    let span = words.number()?;
    let position = words.last()?.parse()?;
    Ok(Command::NewLine {
        name,
        words: LineWords {
            agreement: Agreement {
                kind,
                units,
                faulty,
                span,
            },
            own,
            position,
        },
    })
}

// One record of a plan file: 16 bytes, a station's label and the label of a station that it is joined to.
ghost use Rattle.std.specs.Prelude.{◌≡◌, ◌<◌, ◌≤◌, length, IfSome};
ghost use Rattle.label.specs.Labels.{label_of};
ghost use Rattle.records.specs.Halves.{eight_at, second_of};
ghost use Rattle.records.specs.Files.{seek, parent_for, judged};
ghost use Rattle.records.specs.Lists.{labels_of};

use crate::fault::PlanFault;
use label::Label;

// A station, and the place of the earlier record whose station it is joined to. The first record of a file is joined to none; of the
// first in a list of records a join may be set, and counts for nothing.
#[derive(Clone, Copy, Default)]
pub struct Record {
    pub label: Label,
    pub joined: Option<u16>,
}

// The label that the second half of the record at byte `at` holds; none where it is blank.
fn read_second(bytes: &[u8], at: usize) -> Result<Option<Label>, PlanFault>
    ensures { result ≡ second_of at bytes.now }
{
    if bytes == b"        ".as_slice() {
        return Ok(None);
    }
    let label = Label::read(bytes).ok_or(PlanFault::Unlawful(at))?;
    Ok(Some(label))
}

// The place of the earlier record with that label.
fn seek(earlier: &[Record], label: Label) -> Option<usize>
    ensures value { result ≡ seek label (labels_of earlier.now) }
    ensures inside { IfSome result (λ k. k < length earlier.now) }
{
    // Keys are compared, which are one number each: equal keys are equal labels.
    let sought = label.key();
    earlier
        .iter()
        .position(|record| record.label.key() == sought)
}

// The place that a second half names: none in the first record, that of an earlier station in every other.
fn parent_for(earlier: &[Record], second: Option<Label>) -> Option<Option<u16>>
    requires { length earlier.now ≤ 1024 }
    ensures { result ≡ parent_for second (labels_of earlier.now) }
{
    // A place is below 1,024, so its cast loses nothing.
    match second {
        None if earlier.is_empty() => Some(None),
        None => None,
        Some(label) => Some(Some(seek(earlier, label)? as u16)),
    }
}

// The record that stands in those bytes, at byte `at` of the file, after the earlier ones.
pub(crate) fn read_record(bytes: &[u8], at: usize, earlier: &[Record]) -> Result<Record, PlanFault>
    requires whole { length bytes.now ≡ 16 }
    requires few { length earlier.now ≤ 1024 }
    ensures { result ≡ judged (label_of (eight_at bytes.now 0)) (second_of at (eight_at bytes.now 8)) at (labels_of earlier.now) }
{
    let label = Label::read(&bytes[..8]).ok_or(PlanFault::Unlawful(at))?;
    let second = read_second(&bytes[8..16], at)?;
    if seek(earlier, label).is_some() {
        return Err(PlanFault::Repeated(at));
    }
    let joined = parent_for(earlier, second).ok_or(PlanFault::Joined(at))?;
    Ok(Record { label, joined })
}

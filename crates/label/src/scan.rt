// Where a scan of a label's bytes stands.
ghost use Rattle.std.specs.Prelude.{◌≡◌, fold};
ghost use Rattle.label.specs.Scans.{next, ends};
ghost use Rattle.label.specs.declared.scan.Scan.TheVariants.{Start};

#[derive(Clone, Copy)]
pub enum Scan {
    Start,
    Signs,
    Blanks,
    Broken,
}

impl Scan {
    // Decides what the next byte is. The one place in the code that says which bytes are sign bytes.
    pub fn after(self, byte: u8) -> Scan
        ensures { result ≡ next self byte }
    {
        // The guards below read these two flags: that is the form that the project sets for sign bytes.
        let (blanks_begun, signs_begun) = match self {
            Scan::Start => (false, false),
            Scan::Signs => (false, true),
            Scan::Blanks => (true, true),
            Scan::Broken => (true, false),
        };
        match byte {
            b'A'..=b'Z' | b'0'..=b'9' | b'-' if !blanks_begun => Scan::Signs,
            b' ' if signs_begun => Scan::Blanks,
            _ => Scan::Broken,
        }
    }

    // Where a scan of the bytes ends.
    pub fn over(bytes: &[u8]) -> Scan
        ensures { result ≡ fold next Start bytes.now }
    {
        bytes
            .iter()
            .fold(Scan::Start, |scan, byte| scan.after(*byte))
    }

    // Whether the bytes so far are a label.
    pub fn is_whole(self) -> bool
        ensures { result ≡ ends self }
    {
        match self {
            Scan::Signs | Scan::Blanks => true,
            Scan::Start | Scan::Broken => false,
        }
    }
}

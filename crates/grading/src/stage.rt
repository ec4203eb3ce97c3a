// How far a grading is: the next frame has the own value, what came, or the votes; or all three rounds have ended. A closed set,
// so each call matches on it; types as states would change the type of a grading that a line holds.
#[derive(Clone, Copy, PartialEq, Eq)]
pub enum Stage {
    Sending,
    Relaying,
    Voting,
    Graded,
}

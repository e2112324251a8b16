// What a search answers.

// 'The result carries turns, passes begun and the last limit'.
#[derive(Clone, Copy)]
pub struct Figures {
    pub turns: u64,
    pub passes: usize,
    pub limit: u16,
}

// What a search that isn't refused settles: a plan is found, there is none, or turns ran out.
#[derive(Clone, Copy)]
pub enum Searched {
    Found(Figures),
    None(Figures),
    OutOfTurns(Figures),
}

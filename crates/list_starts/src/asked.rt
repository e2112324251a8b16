// What a listing is asked for beside the day.

// The page asked for: 'a first plan number (from 0) and a room in plans'.
#[derive(Clone, Copy)]
pub struct Asked {
    pub first: u64,
    pub room: u64,
}

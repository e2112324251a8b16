// The kind codes; what each kind's columns may hold stands in the table of src/table.rt.

// A kind, by its code. The names are the Rust's; codes from 10 up count from 10 and not from the Rust's
// limit.
#[derive(Clone, Copy)]
pub struct Kind(pub u16);

impl Kind {
    pub const INVALID: u16 = 0;

    pub const CHOICE_IS_IN_SLOT: u16 = 1;

    pub const CHOICE_IS_NOT_IN_SLOT: u16 = 2;

    pub const CHOICES_ARE_IN_SAME_SLOT: u16 = 3;

    pub const CHOICES_ARE_NOT_IN_SAME_SLOT: u16 = 4;

    pub const CHOICES_HAVE_OFFSET: u16 = 5;

    pub const SLOT_HAS_LIMITED_SIZE: u16 = 6;

    pub const SLOT_CONTAINS_CHOICE: u16 = 7;

    pub const SLOT_NOT_CONTAINS_CHOICE: u16 = 8;

    pub const SLOTS_HAVE_SAME_CHOICES: u16 = 9;

    pub const CHOICES_HAVE_SAME_CHOOSERS: u16 = 10;

    pub const CHOOSER_IS_IN_CHOICE: u16 = 11;

    pub const CHOOSER_IS_NOT_IN_CHOICE: u16 = 12;

    pub const CHOOSERS_HAVE_SAME_CHOICES: u16 = 13;

    pub const CHOICE_CONTAINS_CHOOSER: u16 = 14;

    pub const CHOICE_NOT_CONTAINS_CHOOSER: u16 = 15;
}

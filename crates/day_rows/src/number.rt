// 'A choice number, a slot number and a chooser number are kept apart': three tuple structs over numbers.

#[derive(Clone, Copy)]
pub struct Choice(pub u16);

#[derive(Clone, Copy)]
pub struct Slot(pub u16);

#[derive(Clone, Copy)]
pub struct Chooser(pub u16);

// What a call asks, but for the columns.
use plans::Setting;
use ticks::units::Millis;

// A peek.
#[derive(Clone, Copy)]
pub struct Query<'a> {
    pub setting: Setting<'a>,
    pub moment: Millis,
    pub subscriber: u32,
}

// An acquire.
#[derive(Clone, Copy)]
pub struct Request<'a> {
    pub query: Query<'a>,
    pub cost: u32,
}

// The names of fields.
#[derive(Clone, Copy, Debug, PartialEq, Eq)]
pub enum Name {
    Cores,
    Tasks,
    Resources,
    Order,
    Key,
    Event,
    Task,
    Due,
    Band,
    Level,
    Resource,
}

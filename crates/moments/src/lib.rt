// Moments: kinds of value with an order, a range and a text, of which days and sheet stamps are two; and rows of anything ordered.
#![tactic(auto)]

mod day;
mod digits;
mod moment;
mod ordered;
mod place;
mod row;
mod sheet_stamp;

pub use day::Day;
pub use moment::{Moment, Printed};
pub use ordered::{Compared, Ordered};
pub use row::Row;
pub use sheet_stamp::SheetStamp;

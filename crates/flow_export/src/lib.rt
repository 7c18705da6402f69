//! The history of a case as an event log, for spreadsheets, process miners and databases.
#![tactic(auto)]

mod csv_form;
mod date_time;
mod events;
mod json_form;
mod log_event;
mod log_row;
mod read_back;
mod sql_form;
mod sql_literal;
mod xes_form;
mod xml_value;

pub use csv_form::{csv_head, csv_lines};
pub use events::events_of;
pub use json_form::json_lines;
pub use log_event::{Lifecycle, LogEvent};
pub use log_row::{LogRow, Teller, rows_of};
pub use read_back::{
    law_csv_is_read_back, law_sql_literals_are_read_back, law_xml_values_are_read_back,
};
pub use sql_form::{SQL_END, SQL_HEAD, sql_case};
pub use xes_form::{XES_END, XES_HEAD, xes_trace};

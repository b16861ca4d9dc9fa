//! Whether the rows of a snapshot fit, one by one, over lists that rise: a row that another one names is found by halving.
#![tactic(auto)]

mod activities;
mod declared;
mod entities;
mod fits;
mod found;
mod queues;
mod services;

pub use activities::{
    are_activity_rows, are_attribute_rows, are_link_rows, are_mask_rows, are_name_rows,
    have_table_activities,
};
pub use declared::{count_tables, table_unique};
pub use entities::{are_field_rows, are_named, are_placed, are_root_names, have_their_fields};
pub use found::{entity_at, is_waiting};
pub use queues::{
    LAST_MOMENT, are_entity_marks, are_event_rows, are_profile_rows, are_service_marks,
    are_suspension_rows, are_timer_rows, end_right,
};
pub use services::are_services;

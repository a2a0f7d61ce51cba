mod errors;
mod fleet_targets;
mod made;
mod messages;
mod rows;
mod sizes;
mod targets;

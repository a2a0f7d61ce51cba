mod answers;
mod calls;
mod contents;
mod cut;
mod made;
mod requests;
mod sizes;
mod statuses;

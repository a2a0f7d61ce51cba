mod connections;
mod doors;
mod sizes;

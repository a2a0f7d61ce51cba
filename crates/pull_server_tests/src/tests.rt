mod answers;
mod faults;
mod full;
mod full_disk;
mod running;
mod sizes;
mod steps;

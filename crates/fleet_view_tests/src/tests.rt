mod answers;
mod classes;
mod faults;
mod openings;

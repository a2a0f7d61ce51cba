mod memory_disk;
mod memory_forms;
mod memory_host;
mod reliable_forms;
mod shared_stops;

mod folder_faults;
mod real_disk;
mod real_things;
mod scratch;
mod watched_files;

mod answers;
mod requests;
mod writing;

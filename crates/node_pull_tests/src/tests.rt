mod made;
mod packages;
mod pulling;
mod pulls;
mod pushes;
mod registering;

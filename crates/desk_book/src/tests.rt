// Sessions at the desk.
mod refused;
mod sessions;
mod texts;

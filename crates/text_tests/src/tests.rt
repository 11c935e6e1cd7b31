mod code;
mod feeds;
mod long;
mod names;
mod sources;
mod tags;

mod columns;
mod frames;
mod lists;
mod messages;
mod replies;
mod uris;

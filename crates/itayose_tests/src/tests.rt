mod auctions;
mod searched;
mod shares;

//! Headers, as C has them: each as its fields, read from octets and written.
mod clcw;
mod packet;
mod segment;
mod tc;
mod tm;

//! Headers of known octets: their fields follow from the tables of bits. Error control fields are
//! known from outside.
mod clcw;
mod ends;
mod error_control;
mod packet_header;
mod segment_header;
mod tc_header;
mod tm_header;

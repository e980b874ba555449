//! The window of FARM-1.
use super::rows::Stop;
use sl_cop::Window;

/// The window of this width, if there is one.
pub fn window(width: u8) -> Result<Window, Stop> {
    Window::new(width).ok_or(Stop::Absent)
}

//! The bytes of the three areas, as rows make them.

use abl_base::Bytes;
use mem_disk::Images;
use std::alloc::{AllocError, Global};

/// The bytes from a place on.
fn tail_of(bytes: &Vec<u8>, from: usize) -> Result<Vec<u8>, AllocError> {
    let alloc = *bytes.allocator();
    if from < bytes.len() {
        bytes[from..].to_vec(alloc)
    } else {
        Ok(Vec::new(alloc))
    }
}

/// The most bytes of an area that a row makes.
const MOST: u64 = 1 << 28;

/// The bytes of the three areas.
#[derive(Drop)]
pub struct Areas {
    d0: Vec<u8>,
    b1: Vec<u8>,
    b2: Vec<u8>,
}

impl Areas {
    /// Three areas without bytes.
    pub fn empty(alloc: Global) -> Areas {
        Areas {
            d0: Vec::new(alloc),
            b1: Vec::new(alloc),
            b2: Vec::new(alloc),
        }
    }

    /// The bytes of these images.
    pub fn of(alloc: Global, images: &Images) -> Result<Areas, AllocError> {
        Ok(Areas {
            d0: images.d0.as_slice().to_vec(alloc)?,
            b1: images.b1.as_slice().to_vec(alloc)?,
            b2: images.b2.as_slice().to_vec(alloc)?,
        })
    }

    /// The images that have these bytes.
    pub fn images(&self, alloc: Global) -> Result<Images, AllocError> {
        Ok(Images {
            d0: Bytes::of(alloc, &self.d0)?,
            b1: Bytes::of(alloc, &self.b1)?,
            b2: Bytes::of(alloc, &self.b2)?,
        })
    }

    /// The bytes of the area of that number; of area 2 for each number above it.
    fn area(&mut self, area: u64) -> &mut Vec<u8> {
        match area {
            0 => &mut self.d0,
            1 => &mut self.b1,
            _ => &mut self.b2,
        }
    }

    /// How many bytes an area has.
    pub fn length(&self, area: u64) -> usize {
        match area {
            0 => self.d0.len(),
            1 => self.b1.len(),
            _ => self.b2.len(),
        }
    }

    /// Puts this byte that often to the area's end.
    pub fn fill(&mut self, area: u64, count: u64, byte: u8) -> Result<(), AllocError> {
        let bytes = self.area(area);
        let length = bytes.len().saturating_add(count.min(MOST) as usize);
        bytes.resize(length, byte)
    }

    /// Puts bytes to the area's end.
    pub fn append(&mut self, area: u64, bytes: &[u8]) -> Result<(), AllocError> {
        self.area(area).extend_from_slice(bytes)
    }

    /// Leaves the first bytes of the area.
    pub fn cut(&mut self, area: u64, length: u64) {
        self.area(area).truncate(length.min(MOST) as usize);
    }

    /// Puts the bytes there, with zeros between the area's end and them.
    pub fn put(&mut self, area: u64, at: u64, bytes: &[u8]) -> Result<(), AllocError> {
        let place = self.area(area);
        let from = at.min(MOST) as usize;
        let end = from.saturating_add(bytes.len());
        let tail = tail_of(place, end)?;
        place.resize(from, 0)?;
        place.extend_from_slice(bytes)?;
        place.extend_from_slice(&tail)
    }
}

// What the program does with registers of either make alike: it lays them out.
use day_book::day::DayBook;
use register::fault::MakeFault;
use register::transfers::Transfers;
use table_register::table::TableRegister;

pub(crate) trait Make: Transfers {
    fn lay_out(&mut self, accounts: usize, assets: usize) -> Result<(), MakeFault>;
}

impl Make for TableRegister<'_> {
    fn lay_out(&mut self, accounts: usize, assets: usize) -> Result<(), MakeFault> {
        TableRegister::lay_out(self, accounts, assets)
    }
}

impl Make for DayBook<'_> {
    fn lay_out(&mut self, accounts: usize, assets: usize) -> Result<(), MakeFault> {
        DayBook::lay_out(self, accounts, assets)
    }
}
